// Memory for the text of a listing.
ghost use Rattle.std.specs.Prelude.{◌≤◌, vec_capacity};

mod calls;
mod lines;
mod tables;
mod writing;

// No listing is longer.
pub const ROOM: usize = 65_536;

// Room for the text of every listing, reserved when it is made.
#[derive(Drop)]
pub struct Text {
    bytes: Vec<u8>,
    ghost reserved: { 65536 ≤ vec_capacity bytes },
}
