use super::Mills;
use scale::{Pair, Scale, Volume};

#[test]
fn range_ends(rt: HostRuntime) {
    for (level, inside) in [
        (799_992_000i64, true),
        (-799_992_000, true),
        (799_992_001, false),
        (-799_992_001, false),
    ] {
        assert_eq!(rt; Mills::read_price(&level.to_le_bytes()).is_some(), inside);
    }
    assert_eq!(rt; Mills::down(9_999_900), -99_999_000);
}

// A scale of one's own pairs with any other.
#[test]
fn mills_then_volume(rt: HostRuntime) {
    assert_eq!(rt; Pair::<Mills, Volume>::levels(), 2);
    assert_eq!(rt; Pair::<Mills, Volume>::up(-5), (-50, 1));
}
