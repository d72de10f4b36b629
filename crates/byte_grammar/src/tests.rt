use super::*;
use std::alloc::{AllocError, Global};
use std::test::Fail;

/// Numbers of two bytes, from 1 to 9.
#[derive(Clone, Copy)]
struct Digits;

impl Units for Digits {
    ghost use Rattle.std.specs.Prelude.{◌<◌, ◌^◌, ℕ};
    ghost use Rattle.byte_grammar.specs.Reader.{number_in};
    ghost use Rattle.byte_grammar.specs.Numbers.{u16_bytes};
    ghost use Rattle.byte_grammar.specs.Keeps.{IsAlways};

    type Item = u16;

    fn most(len: usize) -> usize {
        len / 2
    }

    ghost reading = { λ _ before. number_in 1 9 2 };

    ghost fits = { λ n. n < 2 ^ 16 };

    ghost sound = { IsAlways };

    ghost spelled = { u16_bytes };

    fn write(item: &u16, out: &mut Vec<u8>) -> Result<(), AllocError> {
        put_u16(out, *item)
    }

    fn known(item: &u16) {
        let _number = *item;
    }

    fn read<'a>(
        &self,
        alloc: Global,
        before: &[u16],
        bytes: &'a [u8],
    ) -> Result<(u16, &'a [u8]), Stop> {
        u16_in(1, 9, bytes)
    }
}

#[test]
fn units_are_read_one_after_another(rt: HostRuntime) -> Result<(), Fail> {
    let mut out = Vec::new(rt.alloc());
    put_all::<Digits>(&mut out, [3u16, 1, 9].as_slice())?;
    all_known::<Digits>([3u16].as_slice());
    assert_eq!(rt; out.as_slice(), [3u8, 0, 1, 0, 9, 0].as_slice());
    let read = units_at(rt.alloc(), &Digits, 2, out.as_slice());
    match read {
        Ok((items, rest)) => {
            assert_eq!(rt; items.as_slice(), [3u16, 1].as_slice());
            assert_eq!(rt; rest, [9u8, 0].as_slice());
        }
        Err(_) => assert!(rt; false),
    }
    let all = units_at(rt.alloc(), &Digits, u32::MAX, out.as_slice());
    assert!(rt; matches!(all, Err(Stop::Bad { left: 0 })));
    Ok(())
}

#[test]
fn numbers_stand_lowest_byte_first(rt: HostRuntime) -> Result<(), Fail> {
    let mut out = Vec::new(rt.alloc());
    put_u8(&mut out, 7)?;
    put_u32(&mut out, 0x0102_0304)?;
    put_i16(&mut out, -2)?;
    put_i32(&mut out, -3)?;
    put_i128(&mut out, -1)?;
    let wanted = [
        7u8, 4, 3, 2, 1, 0xfe, 0xff, 0xfd, 0xff, 0xff, 0xff, 0xff, 0xff, 0xff, 0xff, 0xff, 0xff,
        0xff, 0xff, 0xff, 0xff, 0xff, 0xff, 0xff, 0xff, 0xff, 0xff,
    ];
    assert_eq!(rt; out.as_slice(), wanted.as_slice());
    let (seven, rest) = u8_at(out.as_slice()).ok_or("no byte")?;
    let (tag, rest) = tag_at(0x0102_0304, rest).ok().ok_or("no tag")?;
    let (short, rest) = i16_at(rest).ok_or("no short")?;
    let (whole, rest) = signed_at(rest).ok().ok_or("no whole")?;
    let (long, rest) = i128_at(rest).ok_or("no long")?;
    assert_eq!(rt; (seven, tag, short), (7, 0x0102_0304, -2));
    assert_eq!(rt; (whole, long, rest.len()), (-3, -1, 0));
    Ok(())
}

/// The number that four bytes are.
fn whole_number(bytes: &[u8]) -> Result<u32, CodecFault> {
    whole_of(bytes, number_at(bytes))
}

#[test]
fn what_is_no_spelling_has_a_place(rt: HostRuntime) -> Result<(), Fail> {
    assert_eq!(rt; whole_number(&[4, 3, 2, 1]), Ok(0x0102_0304));
    assert_eq!(rt;
        whole_number(&[4, 3, 2, 1, 0]),
        Err(CodecFault::Bad { at: 4 })
    );
    assert_eq!(rt; whole_number(&[4, 3, 2]), Err(CodecFault::Bad { at: 0 }));
    assert!(rt; matches!(u8_in(0, 6, &[7, 1]), Err(Stop::Bad { left: 2 })));
    assert!(rt; matches!(u32_in(0, 6, &[7, 0, 0, 0, 1]), Err(Stop::Bad { left: 5 })));
    assert!(rt; matches!(tag_at(7, &[7, 0, 0, 1]), Err(Stop::Bad { left: 4 })));
    Ok(())
}
