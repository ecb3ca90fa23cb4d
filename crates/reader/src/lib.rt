// A sheet's bytes read into five lent buffers: the propositions' names, the table of formed propositions, patterns, phrases, the base.
// The answer is how many there are of each with the root, or the refusal of the definition, 3 to 7 at its place, in document 01's order.
// Nothing is assumed of the bytes. What is read before a refusal stands in the buffers; past what is read they are as they were.
// Equal names are equal propositions: a name is a number of the table, which has no word twice.
#![tactic(auto)]

ghost use Rattle.std.specs.Prelude.{◌≡◌, [], ◌≤◌, length, take};
ghost use Rattle.records.specs.Reading.{Tables, naming, after_base, after_phrases, after_patterns};
ghost use Rattle.reader.specs.Parts.{part_two, part_three, part_four};
ghost use Rattle.records.specs.Answers.{rows_in};
ghost use Rattle.reader.specs.Laid.{Space, Propositions, Room, Laid, ReadSoFar, FromBase, FromPhrases, FromPatterns};

use language::Refusal;
use records::{props, rows};

pub mod parts;

// How many there are: propositions, words in use of the table, patterns, phrases, members of the base. And the root's number.
#[derive(Drop)]
pub struct Counts {
    pub props: usize,
    pub words: usize,
    pub patterns: usize,
    pub phrases: usize,
    pub base: usize,
    pub root: usize,
}

// How many propositions have names, how many words of the table are in use, and where that ended.
#[derive(Drop)]
pub struct Named {
    pub props: usize,
    pub words: usize,
    pub ended: Result<usize, Refusal>,
}

// How long the buffers of a sheet are at least: its names; words for its propositions, true and false; five numbers a pattern; twelve a phrase; its base.
pub const NAMES: usize = parts::MOST_PROPOSITIONS;

pub const FORMS: usize = parts::MOST_PROPOSITIONS + 2;

pub const PATTERNS: usize = parts::MOST_PATTERNS * rows::PATTERN;

pub const PHRASES: usize = parts::MOST_PHRASES * rows::PHRASE;

pub const BASE: usize = parts::MOST_MEMBERS;

// A sheet: what is read of it stands in front of the five buffers, also where the rest is refused.
pub fn read_sheet(
    names: &mut [u32],
    forms: &mut [u32],
    patterns: &mut [u32],
    phrases: &mut [u32],
    base: &mut [u32],
    s: &[u8],
) -> Result<Counts, Refusal>
    requires { Room names.old forms.old patterns.old phrases.old base.old }
    ensures { Laid s.now result names.old forms.old patterns.old phrases.old base.old names.new forms.new patterns.new phrases.new base.new }
{
    let p = parts::propositions(names, forms, s);
    let next = p.ended?;
    read_patterns(patterns, phrases, base, &names[..p.props], s, p.words, next)
}

// So many propositions, whose records are at a place, of a sheet or of a certificate. Each gets a name, its number in the table, of which
// so many words are in use already; a record names earlier ones of these.
pub fn read_propositions(
    names: &mut [u32],
    forms: &mut [u32],
    s: &[u8],
    count: usize,
    words: usize,
    at: usize,
) -> Named
    requires { Space count words names.old forms.old }
    ensures { Propositions (naming s.now count [] (take words forms.old) at) result names.old forms.old names.new forms.new }
{
    let mut used = words;
    let mut p = at;
    for i in 0..count {
        match props::word_at(&names[..i], s, p) {
            Ok((w, next)) => {
                let f = forms::intern(forms, used, w);
                words::put(names, i, f.at);
                used = f.size;
                p = next;
            }
            Err(refusal) => {
                return Named {
                    props: i,
                    words: used,
                    ended: Err(refusal),
                };
            }
        }
    }
    Named {
        props: count,
        words: used,
        ended: Ok(p),
    }
}

// Part 2, and what follows it.
fn read_patterns(
    patterns: &mut [u32],
    phrases: &mut [u32],
    base: &mut [u32],
    names: &[u32],
    s: &[u8],
    words: usize,
    at: usize,
) -> Result<Counts, Refusal>
    requires { (640 ≤ length patterns.old) × (6144 ≤ length phrases.old) × (64 ≤ length base.old) }
    ensures { (T : Tables) → ReadSoFar T words names.now → FromPatterns (after_patterns s.now T (part_two s.now T.names at)) result patterns.old phrases.old base.old patterns.new phrases.new base.new }
{
    let q = parts::patterns(patterns, names, s, at);
    let next = q.ended?;
    read_phrases(phrases, base, names, s, words, q.count, next)
}

// Part 3, and what follows it.
fn read_phrases(
    phrases: &mut [u32],
    base: &mut [u32],
    names: &[u32],
    s: &[u8],
    words: usize,
    patterns: usize,
    at: usize,
) -> Result<Counts, Refusal>
    requires { (patterns ≤ 128) × (6144 ≤ length phrases.old) × (64 ≤ length base.old) }
    ensures { (T : Tables) → ReadSoFar T words names.now → length T.patterns ≡ patterns → FromPhrases (after_phrases s.now T (part_three s.now T.names (length T.patterns) at)) result phrases.old base.old phrases.new base.new }
{
    let f = parts::phrases(phrases, names, s, patterns, at);
    let next = f.ended?;
    read_base(base, phrases, names, s, words, patterns, f.count, next)
}

// Parts 4 and 5.
fn read_base(
    base: &mut [u32],
    phrases: &[u32],
    names: &[u32],
    s: &[u8],
    words: usize,
    patterns: usize,
    count: usize,
    at: usize,
) -> Result<Counts, Refusal>
    requires { (count ≤ 512) × (64 ≤ length base.old) }
    ensures { (T : Tables) → ReadSoFar T words names.now → length T.patterns ≡ patterns → T.phrases ≡ rows_in 12 count phrases.now → FromBase (after_base s.now T (part_four s.now T.names at)) result base.old base.new }
{
    let b = parts::base(base, names, s, at);
    let next = b.ended?;
    let (root, end) = parts::root(phrases, s, count, next)?;
    Ok(Counts {
        props: names.len(),
        words,
        patterns,
        phrases: count,
        base: b.count,
        root,
    })
}
