// The code of a token by its bytes: a sign or a letter by itself, a longer word among those of its length.
ghost use Rattle.std.specs.Prelude.{◌≡◌, [], ◌∷◌, ◌<◌, length};
ghost use Rattle.memory.specs.Codes as code;
ghost use Rattle.sheet.specs.Grammar.Words.{named};
ghost use Rattle.tokens.specs.Codes.{codes, or_code, code_of};

use crate::signs;
use memory::codes;
use text::words::among;

// The code of a token of one byte.
fn byte_code(b: u8) -> u64
    ensures { result ≡ code_of (b ∷ []) }
{
    match b {
        b'=' => codes::EQUAL,
        b'<' => codes::LESS,
        b'+' => codes::PLUS,
        b'-' => codes::MINUS,
        b'*' => codes::TIMES,
        b'/' => codes::OVER,
        b'(' => signs::OPEN_BRACKET,
        b')' => signs::CLOSE_BRACKET,
        b'{' => signs::OPEN_BRACE,
        b'}' => signs::CLOSE_BRACE,
        b',' => signs::COMMA,
        b';' => signs::SEMICOLON,
        b':' => signs::COLON,
        b'|' => signs::BAR,
        b'.' => signs::DOT,
        b'S' => signs::SET_LETTER,
        b'Q' => signs::SEQUENCE_LETTER,
        b'B' => signs::BAG_LETTER,
        b'C' => signs::COLLECTION_LETTER,
        _ => signs::OTHER,
    }
}

// The codes of the words of each length, in the order of the words in `word_code`.
const TWO: [u8; 4] = [
    codes::OR as u8,
    codes::CONDITIONAL as u8,
    signs::ARROW as u8,
    signs::IN_WORD as u8,
];

const THREE: [u8; 9] = [
    codes::NEGATION as u8,
    codes::DIV as u8,
    codes::MODULO as u8,
    codes::AND as u8,
    codes::SET as u8,
    codes::BAG as u8,
    codes::LET_IN as u8,
    signs::INT as u8,
    signs::ANY as u8,
];

const FOUR: [u8; 9] = [
    codes::TRUE as u8,
    codes::SELF as u8,
    codes::SIZE_OF as u8,
    codes::ITERATE as u8,
    signs::THEN_WORD as u8,
    signs::ELSE_WORD as u8,
    signs::VOID as u8,
    signs::BOOL as u8,
    signs::REAL as u8,
];

const FIVE: [u8; 6] = [
    codes::FALSE as u8,
    codes::UNDEF as u8,
    codes::TO_SET as u8,
    codes::TO_BAG as u8,
    codes::UNION as u8,
    signs::ENDIF_WORD as u8,
];

const SIX: [u8; 2] = [codes::FOR_ALL as u8, codes::EXISTS as u8];

const SEVEN: [u8; 2] = [codes::IS_UNDEF as u8, codes::OF_MEMBERS as u8];

const EIGHT: [u8; 2] = [codes::INCLUDES as u8, codes::SEQUENCE as u8];

const NINE: [u8; 2] = [codes::CAST_TO as u8, codes::INCLUDING as u8];

const TEN: [u8; 1] = [codes::TO_SEQUENCE as u8];

const TWELVE: [u8; 1] = [codes::ALL as u8];

// The code of a longer token, NO_FORM for one that is no word of the grammar.
fn word_code(f: &[u8]) -> u64
    requires { 1 < length f.now }
    ensures { result ≡ or_code code.no_form (named codes f.now) }
{
    match f.len() {
        2 => among(f, b"or if -> in", &TWO),
        3 => among(f, b"not div mod and Set Bag let Int Any", &THREE),
        4 => among(f, b"true self size iter then else Void Bool Real", &FOUR),
        5 => among(f, b"false undef asSet asBag union endif", &FIVE),
        6 => among(f, b"forAll exists", &SIX),
        7 => among(f, b"isUndef collect", &SEVEN),
        8 => among(f, b"includes Sequence", &EIGHT),
        9 => among(f, b"oclAsType including", &NINE),
        10 => among(f, b"asSequence", &TEN),
        12 => among(f, b"allInstances", &TWELVE),
        _ => codes::NO_FORM,
    }
}

// The code of a token. A number or a class begins with a digit or `#` and is compared with no word.
pub fn token_code(f: &[u8]) -> u64
    requires { 0 < length f.now }
    ensures { result ≡ code_of f.now }
{
    match f {
        [b] => byte_code(*b),
        [b'0'..=b'9' | b'#', ..] => signs::OTHER,
        _ => {
            let k = word_code(f);
            if k == codes::NO_FORM { signs::OTHER } else { k }
        }
    }
}
