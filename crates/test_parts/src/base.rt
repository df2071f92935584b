// The list type: filled, lent, written, copied and taken apart; a list of lists; an owner of one value; a type that holds itself.
use mov_base::{List, One};
use std::test::Fail;

#[test]
fn a_list_keeps_what_was_pushed(rt: HostRuntime) -> Result<(), Fail> {
    let mut list: List<u32> = List::new(rt.alloc());
    list.push(7)?;
    list.push(4)?;
    assert_eq!(rt; list.len(), 2);
    *list.item_mut(1) = 5;
    assert_eq!(rt; list.as_slice(), [7, 5].as_slice());
    assert_eq!(rt; list.copy()?.as_slice(), [7, 5].as_slice());
    let vec = List::from_vec(list.into_vec()).into_vec();
    assert_eq!(rt; vec.as_slice(), [7, 5].as_slice());
    Ok(())
}

#[test]
fn a_list_of_lists_is_copied(rt: HostRuntime) -> Result<(), Fail> {
    let mut lists: List<List<u8>> = List::new(rt.alloc());
    lists.push(List::from_slice(rt.alloc(), [1, 2].as_slice())?)?;
    lists.push(List::new(rt.alloc()))?;
    let copy = lists.copy()?;
    assert_eq!(rt; copy.len(), 2);
    let first = copy.as_slice().first().ok_or("no first list")?;
    assert_eq!(rt; first.as_slice(), [1, 2].as_slice());
    Ok(())
}

#[test]
fn each_number_is_copied(rt: HostRuntime) -> Result<(), Fail> {
    let alloc = rt.alloc();
    assert_eq!(rt;
        List::from_slice(alloc, [1u16].as_slice())?
            .copy()?
            .as_slice(),
        [1u16].as_slice()
    );
    assert_eq!(rt;
        List::from_slice(alloc, [1u64].as_slice())?
            .copy()?
            .as_slice(),
        [1u64].as_slice()
    );
    assert_eq!(rt;
        List::from_slice(alloc, [-1i64].as_slice())?
            .copy()?
            .as_slice(),
        [-1i64].as_slice()
    );
    Ok(())
}

#[test]
fn one_keeps_its_value(rt: HostRuntime) -> Result<(), Fail> {
    let mut one = One::new(rt.alloc(), 7u32)?;
    assert_eq!(rt; *one.get(), 7);
    *one.get_mut() = 8;
    assert_eq!(rt; one.into_inner(), 8);
    Ok(())
}

#[derive(Debug, Drop)]
enum Nest {
    Inner(List<Nest>, One<Nest>),
    End(u32),
}

/// The numbers of the first item and of the value, where both are ends.
fn ends(nest: &Nest) -> Option<(u32, u32)> {
    match nest {
        Nest::Inner(list, one) => match (list.as_slice().first()?, one.get()) {
            (Nest::End(first), Nest::End(value)) => Some((*first, *value)),
            _ => None,
        },
        Nest::End(_) => None,
    }
}

#[test]
fn a_type_holds_itself(rt: HostRuntime) -> Result<(), Fail> {
    let alloc = rt.alloc();
    let mut list = List::new(alloc);
    list.push(Nest::End(1))?;
    let mut nest = Nest::Inner(list, One::new(alloc, Nest::End(2))?);
    assert_eq!(rt; ends(&nest), Some((1, 2)));
    if let Nest::Inner(list, one) = &mut nest {
        *one.get_mut() = Nest::End(4);
        if list.len() == 1 {
            *list.item_mut(0) = Nest::End(3);
        }
    }
    assert_eq!(rt; ends(&nest), Some((3, 4)));
    Ok(())
}
