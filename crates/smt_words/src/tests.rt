//! The operators at values worked by hand from the definitions of the theory FixedSizeBitVectors
//! and of the logic QF_BV.

ghost use Rattle.std.specs.Prelude.{◌≡◌, IfOk};

use crate::Word;
use std::test::Fail;

const MAX: u128 = u128::MAX;

const MAX_64: u128 = 0xffff_ffff_ffff_ffff;

const MAX_127: u128 = MAX >> 1;

const TOP_64: u128 = 1 << 63;

const TOP_127: u128 = 1 << 126;

const TOP_128: u128 = 1 << 127;

fn word(width: u32, value: u128) -> Result<Word, Fail>
    ensures { IfOk result (λ w. w.width ≡ width) }
{
    match Word::new(width, value) {
        Some(made) => Ok(made),
        None => Err("no such word".into()),
    }
}

#[test]
fn words_are_of_1_to_128_bits_and_fit(rt: HostRuntime) -> Result<(), Fail> {
    let top = word(128, MAX)?;
    assert_eq!(rt; (top.width(), top.value()), (128, MAX));
    assert!(rt; Word::new(0, 0).is_none());
    assert!(rt; Word::new(129, 0).is_none());
    assert!(rt; Word::new(8, 256).is_none());
    Ok(())
}

#[test]
fn bits_are_combined_one_by_one(rt: HostRuntime) -> Result<(), Fail> {
    for (n, a, b, not, and, or, xor) in [
        (1, 1, 0, 0, 0, 1, 1),
        (8, 0xcc, 0xaa, 0x33, 0x88, 0xee, 0x66),
        (
            64,
            0xff00_0000_0000_000f,
            0xf0f0_0000_0000_0001,
            0x00ff_ffff_ffff_fff0,
            0xf000_0000_0000_0001,
            0xfff0_0000_0000_000f,
            0x0ff0_0000_0000_000e,
        ),
        (127, MAX_127, 1, 0, 1, MAX_127, MAX_127 - 1),
        (128, MAX, TOP_128, 0, TOP_128, MAX, MAX_127),
    ] {
        let (s, t) = (word(n, a)?, word(n, b)?);
        assert_eq!(rt; s.bvnot().value(), not);
        assert_eq!(rt; s.bvand(t).value(), and);
        assert_eq!(rt; s.bvor(t).value(), or);
        assert_eq!(rt; s.bvxor(t).value(), xor);
        assert_eq!(rt; s.bvnand(t), word(n, and)?.bvnot());
        assert_eq!(rt; s.bvnor(t), word(n, or)?.bvnot());
        assert_eq!(rt; s.bvxnor(t), word(n, xor)?.bvnot());
    }
    Ok(())
}

#[test]
fn sums_and_products_wrap(rt: HostRuntime) -> Result<(), Fail> {
    for (n, a, b, neg, add, sub, mul) in [
        (1, 1, 1, 1, 0, 0, 1),
        (8, 0xf9, 0x03, 0x07, 0xfc, 0xf6, 0xeb),
        (64, MAX_64, 2, 1, 1, MAX_64 - 2, MAX_64 - 1),
        (127, TOP_127, TOP_127, TOP_127, 0, 0, 0),
        (128, MAX, MAX, 1, MAX - 1, 0, 1),
    ] {
        let (s, t) = (word(n, a)?, word(n, b)?);
        assert_eq!(rt; s.bvneg().value(), neg);
        assert_eq!(rt; s.bvadd(t).value(), add);
        assert_eq!(rt; s.bvsub(t).value(), sub);
        assert_eq!(rt; s.bvmul(t).value(), mul);
    }
    Ok(())
}

#[test]
fn quotients_and_remainders_by_sign_and_by_zero(rt: HostRuntime) -> Result<(), Fail> {
    for (n, a, b, udiv, urem, sdiv, srem, smod) in [
        (1, 1, 0, 1, 1, 1, 1, 1),
        (1, 1, 1, 1, 0, 1, 0, 0),
        (8, 0xf9, 0x03, 0x53, 0x00, 0xfe, 0xff, 0x02),
        (8, 0x07, 0xfd, 0x00, 0x07, 0xfe, 0x01, 0xfe),
        (8, 0xf9, 0xfd, 0x00, 0xf9, 0x02, 0xff, 0xff),
        (8, 0xf9, 0x00, 0xff, 0xf9, 0x01, 0xf9, 0xf9),
        (8, 0x80, 0xff, 0x00, 0x80, 0x80, 0x00, 0x00),
        (
            64,
            TOP_64,
            3,
            0x2aaa_aaaa_aaaa_aaaa,
            2,
            0xd555_5555_5555_5556,
            MAX_64 - 1,
            1,
        ),
        (127, TOP_127, MAX_127, 0, TOP_127, TOP_127, 0, 0),
        (128, 5, 0, MAX, 5, MAX, 5, 5),
        (128, MAX, 2, MAX_127, 1, 0, MAX, 1),
    ] {
        let (s, t) = (word(n, a)?, word(n, b)?);
        assert_eq!(rt; s.bvudiv(t).value(), udiv);
        assert_eq!(rt; s.bvurem(t).value(), urem);
        assert_eq!(rt; s.bvsdiv(t).value(), sdiv);
        assert_eq!(rt; s.bvsrem(t).value(), srem);
        assert_eq!(rt; s.bvsmod(t).value(), smod);
    }
    Ok(())
}

#[test]
fn shifts_by_any_amount(rt: HostRuntime) -> Result<(), Fail> {
    for (n, a, b, shl, lshr, ashr) in [
        (1, 1, 1, 0, 0, 1),
        (8, 0x81, 1, 0x02, 0x40, 0xc0),
        (8, 0x80, 9, 0, 0, 0xff),
        (64, TOP_64 + 1, 63, TOP_64, 1, MAX_64),
        (127, TOP_127 + 1, 126, TOP_127, 1, MAX_127),
        (128, 1, 127, TOP_128, 0, 0),
        (128, MAX, MAX, 0, 0, MAX),
    ] {
        let (s, t) = (word(n, a)?, word(n, b)?);
        assert_eq!(rt; s.bvshl(t).value(), shl);
        assert_eq!(rt; s.bvlshr(t).value(), lshr);
        assert_eq!(rt; s.bvashr(t).value(), ashr);
    }
    Ok(())
}

#[test]
fn rotations_by_the_index_modulo_the_width(rt: HostRuntime) -> Result<(), Fail> {
    for (n, a, places, left, right) in [
        (1, 1, 5, 1, 1),
        (8, 0x81, 9, 0x03, 0xc0),
        (64, 1, 63, TOP_64, 2),
        (127, 1, 1, 2, TOP_127),
        (128, 3, 1, 6, TOP_128 + 1),
    ] {
        let s = word(n, a)?;
        assert_eq!(rt; Word::rotate_left(places, s).value(), left);
        assert_eq!(rt; Word::rotate_right(places, s).value(), right);
    }
    Ok(())
}

#[test]
fn orders_with_and_without_sign(rt: HostRuntime) -> Result<(), Fail> {
    for (n, a, b, ult, ule, slt, sle) in [
        (1, 0, 1, true, true, false, false),
        (8, 0x80, 0x7f, false, false, true, true),
        (64, TOP_64, TOP_64, false, true, false, true),
        (127, MAX_127, 0, false, false, true, true),
        (128, 3, 5, true, true, true, true),
    ] {
        let (s, t) = (word(n, a)?, word(n, b)?);
        assert_eq!(rt; (s.bvult(t), s.bvule(t)), (ult, ule));
        assert_eq!(rt; (s.bvuge(t), s.bvugt(t)), (!ult, !ule));
        assert_eq!(rt; (s.bvslt(t), s.bvsle(t)), (slt, sle));
        assert_eq!(rt; (s.bvsge(t), s.bvsgt(t)), (!slt, !sle));
        assert_eq!(rt; s.bvcomp(t), word(1, u128::from(a == b))?);
    }
    Ok(())
}

#[test]
fn results_of_other_widths(rt: HostRuntime) -> Result<(), Fail> {
    let (bit, byte) = (word(1, 1)?, word(8, 0xa5)?);
    assert_eq!(rt; byte.concat(word(8, 0x5b)?), word(16, 0xa55b)?);
    assert_eq!(rt; bit.concat(word(127, 1)?), word(128, TOP_128 + 1)?);
    assert_eq!(rt; Word::extract(6, 4, byte), word(3, 2)?);
    assert_eq!(rt;
        Word::extract(127, 1, word(128, MAX - 1)?),
        word(127, MAX_127)?
    );
    assert_eq!(rt; Word::zero_extend(120, byte), word(128, 0xa5)?);
    assert_eq!(rt; Word::sign_extend(120, byte), word(128, MAX - 0x5a)?);
    assert_eq!(rt; Word::sign_extend(63, bit), word(64, MAX_64)?);
    assert_eq!(rt; Word::repeat(3, byte), word(24, 0xa5a5a5)?);
    assert_eq!(rt; Word::repeat(128, bit), word(128, MAX)?);
    Ok(())
}
