// Words and numbers written behind a text, in memory that is reserved.
ghost use Rattle.std.specs.Prelude.{◌+◌, [], ◌∷◌, ◌++◌, length};
ghost use Rattle.listing.specs.Growth.{HasRoom, Wrote};

use crate::text::Text;
use itoa::{Buffer, Integer};

impl Text {
    // A word.
    pub(super) fn push_word(&mut self, word: &[u8])
        requires { HasRoom (length word.now) self.old }
        ensures { Wrote (length word.now) self.old self.new word.now }
    {
        // `extend_from_slice` does not promise that the memory stays the same.
        for letter in word {
            self.bytes.push_reserved(*letter);
        }
    }

    // A number and the byte that ends it.
    pub(super) fn push_number<N: Integer>(&mut self, number: N, end: u8)
        requires { HasRoom (N.MAX_STR_LEN + 1) self.old }
        ensures { Wrote (N.MAX_STR_LEN + 1) self.old self.new (N.text number ++ (end ∷ [])) }
    {
        self.push_word(Buffer::new().format(number).as_bytes());
        self.bytes.push_reserved(end);
    }
}
