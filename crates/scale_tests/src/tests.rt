// What the scales answer at the ends of their ranges, on lists of levels that are too short or too long, and past 16 levels.
use scale::{Activation, Money, Netting, Pair, Satisfaction, Scale, Volume};
use std::cmp::Ordering;

// The price that the numbers write on the activation scale, from the first `count` bytes of four levels.
fn read(levels: [i64; 4], count: usize) -> Option<(i64, (i64, i64))> {
    let bytes = levels.map(i64::to_le_bytes);
    Activation::read_price(bytes.as_flattened().get(..count)?)
}

#[test]
fn range_ends(rt: HostRuntime) {
    for (level, inside) in [(8i64, true), (-8, true), (9, false), (-9, false)] {
        let bytes = level.to_le_bytes();
        assert_eq!(rt; Satisfaction::read_price(&bytes).is_some(), inside);
        assert_eq!(rt; Volume::read_price(&bytes).is_some(), inside);
    }
    for (level, inside) in [
        (79_999_200i64, true),
        (-79_999_200, true),
        (79_999_201, false),
        (-79_999_201, false),
    ] {
        assert_eq!(rt; Money::read_price(&level.to_le_bytes()).is_some(), inside);
    }
}

#[test]
fn levels_of_the_activation_scale(rt: HostRuntime) {
    assert_eq!(rt; Activation::levels(), 3);
    assert!(rt; Activation::bids_take_part() && !Netting::bids_take_part());
    let most = 79_999_200i64;
    for (levels, count, inside) in [
        ([8, 8, most, 0], 24, true),
        ([-8, -8, -most, 0], 24, true),
        ([9, 8, most, 0], 24, false),
        ([-9, 8, most, 0], 24, false),
        ([8, 9, most, 0], 24, false),
        ([8, -9, most, 0], 24, false),
        ([8, 8, most + 1, 0], 24, false),
        ([8, 8, -most - 1, 0], 24, false),
        // a level short, a level long, a byte short, a byte long
        ([0, 0, 0, 0], 16, false),
        ([0, 0, 0, 0], 32, false),
        ([0, 0, 0, 0], 23, false),
        ([0, 0, 0, 0], 25, false),
    ] {
        let [a, b, c, _] = levels;
        assert_eq!(rt; read(levels, count), inside.then_some((a, (b, c))));
    }
}

#[test]
fn the_first_part_decides(rt: HostRuntime) {
    let unit = Activation::up(-9_999_900);
    assert_eq!(rt; unit, (0, (1, -9_999_900)));
    assert_eq!(rt; Activation::down(-9_999_900), (0, (1, 9_999_900)));
    assert_eq!(rt; Activation::satisfied(), (-1, (0, 0)));
    let sum = Activation::sum(unit, (0, (-1, 9_999_901)));
    assert_eq!(rt;
        Activation::compare(sum, Activation::zero()),
        Ordering::Greater
    );
    assert_eq!(rt; Activation::compare((-1, (8, 8)), sum), Ordering::Less);
    assert_eq!(rt; Activation::compare((0, (0, 1)), sum), Ordering::Equal);
    assert_eq!(rt; Activation::compare((0, (-1, 5)), sum), Ordering::Less);
}

// The pair of a scale with itself has twice its levels.
type Twice<S> = Pair<S, S>;

type Sixteen = Twice<Twice<Twice<Twice<Satisfaction>>>>;

#[test]
fn sixteen_levels_and_seventeen(rt: HostRuntime) {
    assert_eq!(rt; Sixteen::levels(), 16);
    assert!(rt; Sixteen::read_price(&[0; 128]).is_some());
    assert!(rt; Sixteen::read_price(&[0; 136]).is_none());
    assert_eq!(rt; Pair::<Sixteen, Money>::levels(), 17);
    assert!(rt; Pair::<Sixteen, Money>::read_price(&[0; 136]).is_none());
    assert_eq!(rt; Twice::<Sixteen>::levels(), 17);
    assert!(rt; Twice::<Sixteen>::read_price(&[0; 256]).is_none());
}
