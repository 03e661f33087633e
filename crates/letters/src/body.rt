// What a letter can carry.
ghost use Rattle.std.specs.Prelude.{◌≡◌, true, length, take, None};
ghost use Rattle.letters.specs.Forms.{Form, LawfulForm};
ghost use Rattle.letters.specs.Numbers.{padded};

// How many bytes a record has for its body.
pub const BODY_SPACE: usize = 60;

// Bytes with zeros after them, in the space that a record has for its body. What is past the space is left out.
pub fn padded(front: &[u8]) -> [u8; BODY_SPACE]
    ensures { result ≡ padded BODY_SPACE (take BODY_SPACE front.now) }
{
    let kept = &front[..BODY_SPACE.min(front.len())];
    let mut bytes = [0; BODY_SPACE];
    bytes[..kept.len()].copy_from_slice(kept);
    bytes
}

// A type of bodies. The same code writes and reads the records of all of them, by the functions below.
// A kind is the byte that a record has for it. Any crate may bring a type of bodies with kinds of its own.
pub trait Body: Copy {
    ghost form: { Form Self };

    // Some body: a row of a spool whose bytes were no record would be read as a letter with it. No spool ever has such a row.
    ghost blank: { Self };

    // Whether there are bodies of this kind.
    fn has_kind(kind: u8) -> bool
        ensures { result ≡ form.has_kind kind };

    // Whether a body of this kind can have so many bytes.
    fn has_length(kind: u8, len: u8) -> bool
        ensures { result ≡ form.has_length kind len };

    // The first byte at which these are not a body of this kind.
    fn wrong(kind: u8, bytes: &[u8]) -> Option<u8>
        ensures { result ≡ form.wrong kind bytes.now };

    // The body of bytes that were checked.
    fn read(kind: u8, bytes: &[u8]) -> Self
        requires known { form.has_kind kind ≡ true }
        requires right { form.wrong kind bytes.now ≡ None }
        ensures kind { form.kind result ≡ kind }
        ensures bytes { form.bytes result ≡ bytes.now };

    // The byte of this body's kind.
    fn kind(&self) -> u8
        ensures { result ≡ form.kind self.now };

    // How many bytes this body has.
    fn len(&self) -> u8
        ensures { result ≡ length (form.bytes self.now) };

    // This body's bytes, and zeros after them.
    fn to_bytes(&self) -> [u8; BODY_SPACE]
        ensures { result ≡ padded BODY_SPACE (form.bytes self.now) };

    // The blank body.
    fn make_blank() -> Self
        ensures { result ≡ blank };

    ghost lawful: { LawfulForm form };
}
