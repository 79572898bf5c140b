// Letters and words: what a byte can begin, whether a field is a certain word, and the code of a form's word.
ghost use Rattle.std.specs.Prelude.{◌≡◌, ◌+◌, ◌*◌, ◌≤◌, length};
ghost use Rattle.sheet.specs.Lines.{is};
ghost use Rattle.text.specs.Words.{byte_kind, only_byte, code_among, form_code};

use memory::{codes, lines};

// What a byte can begin: a line by its letter, a number, or nothing. This is the match with ranges over line letters and digits of document
// 01, Use these forms in these places.
pub fn byte_kind(b: u8) -> u64
    ensures { result ≡ byte_kind b }
{
    match b {
        b'0'..=b'9' => lines::DIGIT,
        b'C' => lines::CLASS_LINE,
        b'A' => lines::ROW_LINE,
        b'O' => lines::OBJECT_LINE,
        b'V' => lines::VALUE_LINE,
        b'R' => lines::RULE_LINE,
        b'N' => lines::NODE_LINE,
        b'D' => lines::DEFINITION_LINE,
        b'X' => lines::TEXT_LINE,
        _ => lines::NO_LINE,
    }
}

// The only byte of a field that has one; else 0, which is no letter.
pub fn letter(f: &[u8]) -> u8
    ensures { result ≡ only_byte f.now }
{
    match f {
        [b] => *b,
        _ => 0,
    }
}

// Whether the field is this word. Words are short: a loop takes less than `==` of slices does, which reading a text shows.
pub fn same(f: &[u8], w: &[u8]) -> bool
    ensures { result ≡ is f.now w.now }
{
    if f.len() != w.len() {
        return false;
    }
    for i in 0..f.len() {
        if f[i] != w[i] {
            return false;
        }
    }
    true
}

// The code of the field among words of its own length, with one byte between two words; NO_FORM if it is none of them.
pub fn among(f: &[u8], words: &[u8], codes: &[u8]) -> u64
    requires { length codes.now * (length f.now + 1) ≤ length words.now + 1 }
    ensures { result ≡ code_among f.now words.now codes.now }
{
    let mut at = 0;
    for &code in codes {
        let e = at + f.len();
        if same(f, &words[at..e]) {
            return u64::from(code);
        }
        at = e + 1;
    }
    codes::NO_FORM
}

// The codes of the words of each length, in the order of the words in `form_code`.
const TWO: [u8; 4] = [
    codes::CONDITIONAL as u8,
    codes::OR as u8,
    codes::EQUAL as u8,
    codes::CAST_TO as u8,
];

const THREE: [u8; 8] = [
    codes::NUMBER as u8,
    codes::VAR as u8,
    codes::LET_IN as u8,
    codes::AND as u8,
    codes::NEGATION as u8,
    codes::DIV as u8,
    codes::MODULO as u8,
    codes::ALL as u8,
];

const FOUR: [u8; 11] = [
    codes::TRUE as u8,
    codes::REAL as u8,
    codes::SELF as u8,
    codes::SET as u8,
    codes::LESS as u8,
    codes::PLUS as u8,
    codes::OVER as u8,
    codes::OF_OBJECT as u8,
    codes::CALL as u8,
    codes::SIZE_OF as u8,
    codes::ITERATE as u8,
];

const FIVE: [u8; 7] = [
    codes::FALSE as u8,
    codes::UNDEF as u8,
    codes::MINUS as u8,
    codes::TIMES as u8,
    codes::TO_SET as u8,
    codes::TO_BAG as u8,
    codes::UNION as u8,
];

const SIX: [u8; 2] = [codes::FOR_ALL as u8, codes::EXISTS as u8];

const SEVEN: [u8; 2] = [codes::IS_UNDEF as u8, codes::OF_MEMBERS as u8];

const EIGHT: [u8; 1] = [codes::INCLUDES as u8];

const NINE: [u8; 1] = [codes::INCLUDING as u8];

const TEN: [u8; 1] = [codes::TO_SEQUENCE as u8];

// The code of a form by its word. Only words of the same length are compared, eleven at most.
pub fn form_code(f: &[u8]) -> u64
    ensures { result ≡ form_code f.now }
{
    match f.len() {
        2 => among(f, b"if or eq as", &TWO),
        3 => among(f, b"int var let and not div mod all", &THREE),
        4 => among(
            f,
            b"true real self coll less plus over attr call size iter",
            &FOUR,
        ),
        5 => among(f, b"false undef minus times asSet asBag union", &FIVE),
        6 => among(f, b"forAll exists", &SIX),
        7 => among(f, b"isUndef collect", &SEVEN),
        8 => among(f, b"includes", &EIGHT),
        9 => among(f, b"including", &NINE),
        10 => among(f, b"asSequence", &TEN),
        _ => codes::NO_FORM,
    }
}
