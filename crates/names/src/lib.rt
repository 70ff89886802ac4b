// Names of rules: which are valid, and names as words of 64 bits, so that two names are compared in one step.
#![tactic(auto)]

ghost use Rattle.std.specs.Prelude.{◌≤◌, ◌<◌, not, ◌&&◌, ◌||◌, [], ◌∷◌, ◌≡◌, eqb, length, take};
ghost use Rattle.sizes.specs.Sizes.{max_rules};
ghost use Rattle.theory_words.specs.Name.{blank, name_byte, valid_name, allowed_name};
ghost use Rattle.names.specs.Word.{word_of, has_word};

// The bytes of a name with its filling.
pub const NAME: usize = 8;

// A word for each rule.
pub type Words = [u64; sizes::MAX_RULES];

// A capital or a digit.
fn name_byte(b: u8) -> bool
    ensures { result ≡ name_byte b }
{
    if b <= 0x39 {
        b >= 0x30
    } else if b <= 0x5A {
        b >= 0x41
    } else {
        false
    }
}

// Whether a byte may stand behind the first of a name: a blank, or a capital or digit if no blank is before it.
fn follows(ended: bool, b: u8) -> bool
    ensures { result ≡ (eqb b blank || (not ended && name_byte b)) }
{
    b == 0x20 || (!ended && name_byte(b))
}

// One to eight capitals and digits, and then blanks only. `ended` says that the byte before is a blank.
pub fn valid_name(name: [u8; NAME]) -> bool
    ensures { result ≡ valid_name name }
{
    if !name_byte(name[0]) {
        return false;
    }
    let mut ended = false;
    for b in &name[1..] {
        if !follows(ended, *b) {
            return false;
        }
        ended = *b == 0x20;
    }
    true
}

// Four bytes as one number, the first lowest.
fn half(a: u8, b: u8, c: u8, d: u8) -> u64
    ensures value { result ≡ word_of (a ∷ b ∷ c ∷ d ∷ []) }
    ensures upper_bound { result < 0x100000000 }
{
    (a as u64) + 0x100 * (b as u64) + 0x10000 * (c as u64) + 0x1000000 * (d as u64)
}

// The word of a name; that of no name is 0. It is a sum of all bytes, which the compiler makes one load.
pub fn word(name: [u8; NAME]) -> u64
    ensures { result ≡ word_of name }
{
    half(name[0], name[1], name[2], name[3])
        + 0x100000000 * half(name[4], name[5], name[6], name[7])
}

// A valid name or none, as check 8 lets a rule have.
pub fn allowed(name: [u8; NAME]) -> bool
    ensures { result ≡ allowed_name name }
{
    word(name) == 0 || valid_name(name)
}

// Whether w is one of the first n words. It looks at all of them: the compiler compares several at a time.
pub fn earlier(words: &Words, n: usize, w: u64) -> bool
    requires { (n ≤ max_rules) × (length words.now ≡ max_rules) }
    ensures { result ≡ has_word w (take n words.now) }
{
    let mut found = false;
    for word in &words[..n] {
        if *word == w {
            found = true;
        }
    }
    found
}
