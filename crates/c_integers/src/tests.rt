use crate::{converted, in_type, is_in};
use c_program::types::Integer;

#[test]
fn conversions_wrap_and_truth_is_one(rt: HostRuntime) {
    assert_eq!(rt; converted(Integer::Bool, -7), 1);
    assert_eq!(rt; converted(Integer::UnsignedChar, -1), 255);
    assert_eq!(rt; converted(Integer::Char, 200), -56);
    assert_eq!(rt; converted(Integer::UnsignedInt, 1 << 32), 0);
    assert_eq!(rt; converted(Integer::Int, 4_294_967_295), -1);
    assert_eq!(rt;
        converted(Integer::UnsignedLong, -1),
        18_446_744_073_709_551_615
    );
    assert_eq!(rt; converted(Integer::Long, 1 << 63), -(1 << 63));
}

#[test]
fn the_numbers_of_a_type_have_its_least_and_greatest_as_ends(rt: HostRuntime) {
    assert_eq!(rt; is_in(Integer::Char, -128), true);
    assert_eq!(rt; is_in(Integer::Char, 128), false);
    assert_eq!(rt; is_in(Integer::UnsignedShort, 65_535), true);
    assert_eq!(rt; is_in(Integer::UnsignedShort, -1), false);
    assert_eq!(rt; is_in(Integer::LongLong, 1 << 63), false);
    assert_eq!(rt; is_in(Integer::UnsignedLongLong, (1 << 64) - 1), true);
}

#[test]
fn a_signed_result_stays_in_its_type_and_an_unsigned_one_wraps(rt: HostRuntime) {
    assert_eq!(rt; in_type(Integer::Int, 2_147_483_648), None);
    assert_eq!(rt; in_type(Integer::Int, -2_147_483_648), Some(-2_147_483_648));
    assert_eq!(rt; in_type(Integer::UnsignedInt, 4_294_967_296), Some(0));
}
