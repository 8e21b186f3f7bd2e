// Text written into a part of a lent buffer: from a place to the end of the buffer at most, and resumed where an earlier give stopped.
#![tactic(auto)]

ghost use Rattle.std.specs.Prelude.{◌+◌, ◌≤◌, min, ◌≡◌, [], ◌∷◌, ◌++◌, length, take, drop, replicate, leb};
ghost use Rattle.grammar.specs.Bytes.{CR, SP};
ghost use Rattle.buffer.specs.Put.{wrote, cursor, Puts, Takes};

use copying::{clear, copy, copy_each};

/// How far a writer has come.
#[derive(Clone, Copy)]
pub struct Cursor {
    /// Where the next byte goes.
    pub at: usize,
    /// How many bytes of the text are still to be passed over, since an earlier give has handed them out.
    pub skip: usize,
}

// What fits of src, over the start of dst; how many bytes that is.
fn fill(dst: &mut [u8], src: &[u8]) -> usize
    ensures { (result ≡ min (length dst.old) (length src.now)) × (dst.new ≡ take result src.now ++ drop result dst.old) }
{
    let n = dst.len().min(src.len());
    copy(dst, src, n);
    n
}

/// A whole text from a place on, where there is room for it.
pub fn put_whole(buf: &mut [u8], at: usize, src: &[u8])
    requires { at + length src.now ≤ length buf.old }
    ensures { buf.new ≡ wrote buf.old at src.now }
{
    copy_each(&mut buf[at..], src, src.len());
}

/// Writes texts into a lent buffer: from a place to its end at most, and nothing of what an earlier give handed out.
#[derive(Drop)]
pub struct Writer<'a> {
    pub buf: &'a mut [u8],
    pub cursor: Cursor,
}

impl<'a> Writer<'a> {
    /// A writer at this place of the buffer that still passes over `skip` bytes of the text.
    pub fn new(buf: &'a mut [u8], at: usize, skip: usize) -> Self
        ensures lent { result.buf.ghost_name ≡ buf.entry.ghost_name }
        ensures starts { (result.buf.now ≡ buf.old) × (result.cursor ≡ cursor at skip) }
    {
        Writer {
            buf,
            cursor: Cursor { at, skip },
        }
    }

    /// No byte has room any more.
    pub fn is_full(&self) -> bool
        ensures { result ≡ leb (length self.now.buf.now) self.now.cursor.at }
    {
        self.buf.len() <= self.cursor.at
    }

    /// A text: what of it isn't passed over and fits. At the buffer's end or past it nothing is written.
    pub fn put(&mut self, text: &[u8])
        ensures { Takes self.old text.now self.new }
    {
        let Cursor { at, skip } = self.cursor;
        if self.buf.len() <= at {
            self.cursor.skip = 0;
            return;
        }
        if text.len() <= skip {
            self.cursor.skip = skip - text.len();
            return;
        }
        let written = fill(&mut self.buf[at..], &text[skip..]);
        self.cursor = Cursor {
            at: at + written,
            skip: 0,
        };
    }

    /// So many zeros, as a text of them.
    pub fn put_zeros(&mut self, zeros: usize)
        ensures { Takes self.old (replicate zeros 0) self.new }
    {
        let Cursor { at, skip } = self.cursor;
        if self.buf.len() <= at {
            self.cursor.skip = 0;
            return;
        }
        if zeros <= skip {
            self.cursor.skip = skip - zeros;
            return;
        }
        let count = (self.buf.len() - at).min(zeros - skip);
        clear(&mut self.buf[at..], count);
        self.cursor = Cursor {
            at: at + count,
            skip: 0,
        };
    }

    /// One byte.
    pub fn put_byte(&mut self, b: u8)
        ensures { Takes self.old (b ∷ []) self.new }
    {
        let Cursor { at, skip } = self.cursor;
        if self.buf.len() <= at {
            self.cursor.skip = 0;
            return;
        }
        if skip > 0 {
            self.cursor.skip = skip - 1;
            return;
        }
        self.buf[at] = b;
        self.cursor = Cursor {
            at: at + 1,
            skip: 0,
        };
    }

    /// A word and the space after it.
    pub fn put_word(&mut self, word: &[u8])
        ensures { Takes self.old (word.now ++ (SP ∷ [])) self.new }
    {
        self.put(word);
        self.put_byte(b' ');
    }

    /// A line's text and the CR that ends it.
    pub fn put_line(&mut self, text: &[u8])
        ensures { Takes self.old (text.now ++ (CR ∷ [])) self.new }
    {
        self.put(text);
        self.put_byte(b'\r');
    }
}
