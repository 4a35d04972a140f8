use super::kind::Kind;
use super::no_value::NoValue;
use super::numbers::Numbers;
use super::renames::Renames;
use super::tags::Tags;
use records::refusal::Refusal;

// The code of four characters.
fn tag(characters: [u8; 4]) -> u32 {
    u32::from_be_bytes(characters)
}

// A refusal as a user is told of it.
fn told(refusal: Refusal) -> (u8, u64) {
    (refusal.number(), refusal.detail())
}

#[test]
fn numbers_end_below_a_million(rt: HostRuntime) {
    assert!(rt; Numbers.known(0) && Numbers.known(999_999));
    assert!(rt; !Numbers.known(1_000_000));
    assert_eq!(rt; Numbers.same(7, 7), Ok(true));
    assert_eq!(rt; Numbers.same(7, 9), Ok(false));
    assert_eq!(rt; Numbers.same(7, 1_000_000), Err(NoValue(1_000_000)));
    assert_eq!(rt; Numbers.same(2_000_000, 1_000_000), Err(NoValue(2_000_000)));
}

#[test]
fn tags_read_small_letters_as_capitals(rt: HostRuntime) {
    assert_eq!(rt; Tags.same(tag(*b"V-07"), tag(*b"v-07")), Ok(true));
    assert_eq!(rt; Tags.same(tag(*b"V-07"), tag(*b"V-08")), Ok(false));
    assert!(rt; Tags.known(tag(*b"Zz09")));
    assert!(rt; !Tags.known(tag(*b"V_07")));
    assert_eq!(rt;
        Tags.same(tag(*b"V-07"), tag(*b"V 07")),
        Err(NoValue(tag(*b"V 07")))
    );
}

#[test]
fn a_layer_takes_the_letter_over(rt: HostRuntime) {
    assert_eq!(rt; <Renames<Numbers> as Kind>::LETTER, b'N');
    assert_eq!(rt; <Renames<Tags> as Kind>::LETTER, b'T');
    assert_eq!(rt; <Renames<Renames<Tags>> as Kind>::LETTER, b'T');
}

#[test]
fn a_pair_to_an_unknown_code_takes_the_value_away(rt: HostRuntime) {
    let mut layer = Renames::over(Numbers);
    assert_eq!(rt; layer.rename(7, 1_000_000), Ok(()));
    assert_eq!(rt; layer.rename(8, 9), Ok(()));
    assert_eq!(rt; layer.rename(9, 10), Ok(()));
    assert!(rt; !layer.known(7));
    assert_eq!(rt; layer.same(9, 7), Err(NoValue(7)));
    assert_eq!(rt; layer.same(9, 10), Ok(true));
    // no second renaming: 8 means 9 below, and not 10
    assert_eq!(rt; layer.same(8, 10), Ok(false));
}

#[test]
fn a_layer_over_a_layer_renames_again(rt: HostRuntime) {
    let mut below = Renames::over(Numbers);
    assert_eq!(rt; below.rename(2, 3), Ok(()));
    let mut layer = Renames::over(below);
    assert_eq!(rt; layer.rename(1, 2), Ok(()));
    assert_eq!(rt; layer.same(1, 3), Ok(true));
    assert_eq!(rt; <Renames<Renames<Numbers>> as Kind>::LETTER, b'N');
}

#[test]
fn the_seventeenth_pair_and_an_old_code_twice_are_refused(rt: HostRuntime) {
    let mut layer = Renames::over(Tags);
    assert_eq!(rt; layer.rename(5, 6), Ok(()));
    assert_eq!(rt; layer.rename(5, 7).map_err(told), Err((23, 5)));
    for old in 100..115u32 {
        assert_eq!(rt; layer.rename(old, 1), Ok(()));
    }
    assert_eq!(rt; layer.rename(5, 7).map_err(told), Err((22, 0)));
    assert_eq!(rt; layer.rename(200, 7).map_err(told), Err((22, 0)));
}
