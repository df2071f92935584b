// Lines at their places, numbers and lists of them, which fault comes first, and lines as they are written.
use mov_base::List;
use std::test::Fail;
use text_lines::written::{push_list, push_number, push_numbers, push_one, push_two};
use text_lines::{
    LineFault, Numeral, any_numbers, fields, next_is, number, one_number, read_numeral,
    so_many_numbers, two_numbers,
};

#[test]
fn numbers_have_no_leading_zero_and_are_within_limits(rt: HostRuntime) -> Result<(), Fail> {
    let table: [(&[u8], Numeral, Result<u64, LineFault>); 11] = [
        (b"0", Numeral::Number(0), Ok(0)),
        (b"500", Numeral::Number(500), Ok(500)),
        (b"501", Numeral::Above, Err(LineFault::BadNumber)),
        (b"007", Numeral::LeadingZero, Err(LineFault::BadNumber)),
        (b"00", Numeral::LeadingZero, Err(LineFault::BadNumber)),
        (
            b"18446744073709551616",
            Numeral::Above,
            Err(LineFault::BadNumber),
        ),
        (b"", Numeral::NotDigits, Err(LineFault::BadLine)),
        (b"+7", Numeral::NotDigits, Err(LineFault::BadLine)),
        (b"0x", Numeral::NotDigits, Err(LineFault::BadLine)),
        (b"7 8", Numeral::NotDigits, Err(LineFault::BadLine)),
        (b"01 x", Numeral::NotDigits, Err(LineFault::BadLine)),
    ];
    for (line, numeral, want) in table {
        assert_eq!(rt; read_numeral(500, line), numeral, "of {line:?}");
        assert_eq!(rt; one_number(0, 500, &mut fields(line)), want, "of {line:?}");
    }
    let greatest = b"18446744073709551615".as_slice();
    assert_eq!(rt; read_numeral(u64::MAX, greatest), Numeral::Number(u64::MAX));
    assert_eq!(rt; number(1, 500, b"0"), Err(LineFault::BadNumber));
    assert_eq!(rt; two_numbers(0, 9, 1, 9, &mut fields(b"3 4")), Ok((3, 4)));
    Ok(())
}

#[test]
fn fields_and_lists_of_numbers(rt: HostRuntime) -> Result<(), Fail> {
    let alloc = rt.alloc();
    let mut walk = fields(b"cut  7");
    assert_eq!(rt; walk.left(), 3);
    let places: [(&[u8], usize); 3] = [(b"cut", 0), (b"", 4), (b"7", 5)];
    for (text, start) in places {
        match walk.next() {
            Some(field) => assert_eq!(rt; (field.text, field.start), (text, start)),
            None => assert!(rt; false, "no field at {start}"),
        }
    }
    assert!(rt; walk.next().is_none());
    let mut line = fields(b"put 0 255");
    assert!(rt; next_is(&mut line, b"put"));
    match any_numbers(List::<u8>::new(alloc), 0, 255, &mut line) {
        Ok(list) => assert_eq!(rt; list.as_slice(), [0, 255].as_slice()),
        Err(fault) => assert!(rt; false, "told {fault:?}"),
    }
    match so_many_numbers(List::<u16>::new(alloc), 2, 0, 500, &mut fields(b"500 1")) {
        Ok(list) => assert_eq!(rt; list.as_slice(), [500, 1].as_slice()),
        Err(fault) => assert!(rt; false, "told {fault:?}"),
    }
    match any_numbers(List::<u64>::new(alloc), 0, 9, &mut fields(b"10 x")) {
        Ok(_) => assert!(rt; false),
        Err(fault) => assert_eq!(rt; fault, LineFault::BadLine),
    }
    Ok(())
}

#[test]
fn lines_are_written(rt: HostRuntime) -> Result<(), Fail> {
    let mut out = Vec::new(rt.alloc());
    push_one(&mut out, b"split", 0)?;
    push_two(&mut out, b"size", 12, 1_000_000)?;
    push_list(&mut out, b"cut", [u64::MAX, 7].as_slice())?;
    push_list(&mut out, b"reported", [0u16].as_slice())?;
    out.extend_from_slice(b"put")?;
    push_number(&mut out, 3u32)?;
    push_numbers(&mut out, [2u8, 10].as_slice())?;
    assert_eq!(rt;
        out.as_slice(),
        b"split 0\nsize 12 1000000\ncut 18446744073709551615 7\nreported 0\nput 3 2 10".as_slice()
    );
    Ok(())
}
