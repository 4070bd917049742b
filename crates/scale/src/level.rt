// What one level of a price is read by, and how whole numbers are compared.
ghost use Rattle.std.specs.Prelude.{◌≡◌, if◌then◌else◌, int_lt};
ghost use Rattle.std.specs.declared.cmp.Ordering.TheVariants.{Less, Equal, Greater};
ghost use Rattle.scale.specs.Levels.{read_level};

use std::cmp::Ordering;

// The number that eight bytes write, where it lies from -most to most.
pub fn read_level(bytes: &[u8], most: u32) -> Option<i64>
    ensures { result ≡ read_level most bytes.now }
{
    let level = i64::from_le_bytes(*bytes.as_array()?);
    let most = i64::from(most);
    (-most..=most).contains(&level).then_some(level)
}

// How two whole numbers stand to each other.
pub fn compare_numbers(first: i128, second: i128) -> Ordering
    ensures { result ≡ (if int_lt first second then Less else (if int_lt second first then Greater else Equal)) }
{
    first.cmp(&second)
}
