// Bytes put on a page, one after the other. What does not fit its buffer is not written. The place is read once: the compiler can not
// tell that what is written is not the place itself, and would read it again.
ghost use Rattle.std.specs.Prelude.{◌≡◌};
ghost use Rattle.octets.specs.BigEndian.{word_bytes};
ghost use Rattle.octets.specs.Fields.{one, flag};
ghost use Rattle.octets.specs.Written.{Adds};

use crate::page::Page;

impl<'a> Page<'a> {
    #[tactic(auto, unfolding(crate::specs::Written::standing, crate::specs::Written::after))]
    pub fn byte(&mut self, b: u8)
        ensures { Adds self.old (one b) self.new }
    {
        let at = self.at;
        if at < self.out.len() {
            self.out[at] = b;
            self.at = at + 1;
        }
    }

    #[tactic(auto, using(crate::proofs::BytesWritten::put_part, crate::proofs::BytesWritten::put_all), unfolding(crate::specs::Written::standing, crate::specs::Written::after))]
    pub fn bytes(&mut self, t: &[u8])
        ensures { Adds self.old t.now self.new }
    {
        let at = self.at;
        let room = self.out.len() - at;
        // What fits is copied by its own length, which a caller's text often shows.
        if t.len() <= room {
            self.out[at..at + t.len()].copy_from_slice(t);
            self.at = at + t.len();
        } else {
            self.out[at..].copy_from_slice(&t[..room]);
            self.at = at + room;
        }
    }

    // The eight bytes of a number.
    #[tactic(auto, using(crate::proofs::BytesWritten::big_endian))]
    pub fn word(&mut self, v: u64)
        ensures { Adds self.old (word_bytes v) self.new }
    {
        self.bytes(&v.to_be_bytes());
    }

    #[tactic(auto, unfolding(crate::specs::Fields::flag_byte, words::specs::Vocab::choose))]
    pub fn flag(&mut self, b: bool)
        ensures { Adds self.old (flag b) self.new }
    {
        self.byte(u8::from(b));
    }
}
