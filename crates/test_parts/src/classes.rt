// Kinds of a small roll, classes by keys, and signatures.
use crate::rolls::roll_of;
use signature_class::{
    Classes, cover_classes, cover_key, kinds, signature, signature_key, suffix_classes, suffix_key,
};
use std::test::Fail;

#[test]
fn equal_ballots_are_one_kind(rt: HostRuntime) -> Result<(), Fail> {
    let roll = roll_of(rt.alloc(), "2: 2 B, 1, 3 B")?;
    let found = kinds(rt.alloc(), &roll)?;
    assert_eq!(rt; found.len(), 2);
    assert_eq!(rt; (found.row(0), found.count(0)), ([1].as_slice(), 5));
    assert_eq!(rt; (found.row(1), found.count(1)), ([].as_slice(), 1));
    Ok(())
}

#[test]
fn keys_stand_as_they_came(rt: HostRuntime) -> Result<(), Fail> {
    let mut classes = Classes::new(rt.alloc());
    classes.add(7, 2)?;
    classes.add(0, 1)?;
    classes.add(7, 3)?;
    assert_eq!(rt; classes.len(), 2);
    assert_eq!(rt; (classes.key(0), classes.count(0)), (7, 5));
    assert_eq!(rt; (classes.key(1), classes.count(1)), (0, 1));
    Ok(())
}

/// The one candidate before the last in the suffix goes out without holding the ballot.
#[test]
fn one_signature(rt: HostRuntime) -> Result<(), Fail> {
    let places = signature(rt.alloc(), &[1, 2], &[1, 0, 2]);
    assert_eq!(rt; places.as_slice(), [1, 3].as_slice());
    assert_eq!(rt; signature_key(places.as_slice()), 5);
    assert_eq!(rt;
        (suffix_key(&[1, 2], &[1, 0, 2]), cover_key(&[1, 2, 0], 2)),
        (5, 6)
    );
    Ok(())
}

#[test]
fn kinds_are_classed(rt: HostRuntime) -> Result<(), Fail> {
    let roll = roll_of(rt.alloc(), "3: 2 BC, 1, 3 A, 4 BCA")?;
    let kinds = kinds(rt.alloc(), &roll)?;
    let by_suffix = suffix_classes(rt.alloc(), &kinds, &[1, 0, 2])?;
    assert_eq!(rt; by_suffix.len(), 3);
    assert_eq!(rt; (by_suffix.key(0), by_suffix.count(0)), (5, 6));
    assert_eq!(rt; (by_suffix.key(2), by_suffix.count(2)), (2, 3));
    let by_cover = cover_classes(rt.alloc(), &kinds, 0)?;
    assert_eq!(rt; by_cover.len(), 4);
    assert_eq!(rt; (by_cover.key(0), by_cover.count(0)), (6, 2));
    assert_eq!(rt; (by_cover.key(3), by_cover.count(3)), (7, 4));
    Ok(())
}
