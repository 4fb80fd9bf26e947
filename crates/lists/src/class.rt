// The classes of bytes. A scan is compiled for each class alone.
ghost use Rattle.std.specs.Prelude.{◌≡◌, ℕ, Bool, not};
ghost use Rattle.lists.specs.Classes.{digit, letter, digit_or_comma, digit_or_dash, roman_tail, colon_or_point, letter_e, continuation, whitespace, prepunctuation_mark, postpunctuation_mark, only};

// A set of bytes.
pub trait ByteClass: Copy {
    ghost contains: { Self → ℕ → Bool };

    fn contains(self, b: u8) -> bool
        ensures { result ≡ contains self b };
}

// 0 to 9.
#[derive(Clone, Copy)]
pub struct Digit;

impl ByteClass for Digit {
    ghost contains = { λ _. digit };

    fn contains(self, b: u8) -> bool {
        b.is_ascii_digit()
    }
}

// A to Z and a to z.
#[derive(Clone, Copy)]
pub struct Letter;

impl ByteClass for Letter {
    ghost contains = { λ _. letter };

    fn contains(self, b: u8) -> bool {
        b.is_ascii_alphabetic()
    }
}

// A digit or a comma.
#[derive(Clone, Copy)]
pub struct DigitOrComma;

impl ByteClass for DigitOrComma {
    ghost contains = { λ _. digit_or_comma };

    fn contains(self, b: u8) -> bool {
        Digit.contains(b) | (b == b',')
    }
}

// A digit or a hyphen.
#[derive(Clone, Copy)]
pub struct DigitOrDash;

impl ByteClass for DigitOrDash {
    ghost contains = { λ _. digit_or_dash };

    fn contains(self, b: u8) -> bool {
        Digit.contains(b) | (b == b'-')
    }
}

// What may follow the X of a roman numeral: V, I and X.
#[derive(Clone, Copy)]
pub struct RomanTail;

impl ByteClass for RomanTail {
    ghost contains = { λ _. roman_tail };

    fn contains(self, b: u8) -> bool {
        (b == b'V') | (b == b'I') | (b == b'X')
    }
}

// A colon or a point.
#[derive(Clone, Copy)]
pub struct ColonOrPoint;

impl ByteClass for ColonOrPoint {
    ghost contains = { λ _. colon_or_point };

    fn contains(self, b: u8) -> bool {
        (b == b':') | (b == b'.')
    }
}

// e and E.
#[derive(Clone, Copy)]
pub struct LetterE;

impl ByteClass for LetterE {
    ghost contains = { λ _. letter_e };

    fn contains(self, b: u8) -> bool {
        (b == b'e') | (b == b'E')
    }
}

// A byte of a character after its first byte.
#[derive(Clone, Copy)]
pub struct Continuation;

impl ByteClass for Continuation {
    ghost contains = { λ _. continuation };

    fn contains(self, b: u8) -> bool {
        (0x80 <= b) & (b <= 0xBF)
    }
}

// Space, tab, LF and CR.
#[derive(Clone, Copy)]
pub struct Whitespace;

impl ByteClass for Whitespace {
    ghost contains = { λ _. whitespace };

    #[tactic(auto, unfolding(crate::specs::Bytes::any))]
    fn contains(self, b: u8) -> bool {
        (b == b' ') | (b == b'\t') | (b == b'\n') | (b == b'\r')
    }
}

// A leading mark of a token. No `matches!` here and below: of a long one the compiler makes a chain of jumps.
#[derive(Clone, Copy)]
pub struct Prepunctuation;

impl ByteClass for Prepunctuation {
    ghost contains = { λ _. prepunctuation_mark };

    #[tactic(auto, unfolding(crate::specs::Bytes::any))]
    fn contains(self, b: u8) -> bool {
        (b == b'"') | (b == b'\'') | (b == b'`') | (b == b'(') | (b == b'{') | (b == b'[')
    }
}

// A trailing mark of a token.
#[derive(Clone, Copy)]
pub struct Postpunctuation;

impl ByteClass for Postpunctuation {
    ghost contains = { λ _. postpunctuation_mark };

    #[tactic(auto, unfolding(crate::specs::Bytes::any))]
    fn contains(self, b: u8) -> bool {
        (b == b'"')
            | (b == b'\'')
            | (b == b'`')
            | (b == b'.')
            | (b == b',')
            | (b == b':')
            | (b == b';')
            | (b == b'!')
            | (b == b'?')
            | (b == b'(')
            | (b == b')')
            | (b == b'{')
            | (b == b'}')
            | (b == b'[')
            | (b == b']')
    }
}

// This byte alone.
#[derive(Clone, Copy)]
pub struct Byte(pub u8);

impl ByteClass for Byte {
    ghost contains = { λ class. only class.0 };

    fn contains(self, b: u8) -> bool {
        b == self.0
    }
}

// Every byte that is not of the class.
#[derive(Clone, Copy)]
pub struct Not<C>(pub C);

impl<C: ByteClass> ByteClass for Not<C> {
    ghost contains = { λ class b. not (C.contains class.0 b) };

    fn contains(self, b: u8) -> bool {
        !self.0.contains(b)
    }
}
