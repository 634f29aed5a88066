// The words in which reading keeps what it needs of the lines taken so far.
#![tactic(auto)]

ghost use Rattle.std.specs.Prelude.{◌≡◌, ◌≤◌, length};
ghost use Rattle.line_state.specs.StateSteps.{cell_of};
ghost use Rattle.line_state.specs.StateWords.{array_in, started_in};

// The state is 424 words, and no struct, because callers in C lend it so: these are the places in it.
// Where the arrays begin: the relations' sets, the keys' children and parents;
pub const SETS: usize = 0;

pub const CHILDREN: usize = 32;

pub const PARENTS: usize = 64;

// of the open blocks the places, the parts and the places by part;
pub const OPEN_PLACES: usize = 96;

pub const OPEN_PARTS: usize = 128;

pub const OPEN_LOOPS: usize = 160;

pub const OPEN_FIRSTS: usize = 192;

pub const OPEN_SECONDS: usize = 224;

// of the statements the relations, which may be a link's parent, and the places of the blocks around.
pub const STATEMENT_RELATIONS: usize = 256;

pub const PARENTAL: usize = 288;

pub const AROUND_LOOPS: usize = 320;

pub const AROUND_FIRSTS: usize = 352;

pub const AROUND_SECONDS: usize = 384;

// Where the counts stand, after the arrays: of the program at hand the lines of its body, the links, the open blocks and the statements;
pub const BODY: usize = 416;

pub const LINKS: usize = 417;

pub const DEPTH: usize = 418;

pub const STATEMENTS: usize = 419;

// of all lines the number, the programs, the relations and the keys.
pub const LINES: usize = 420;

pub const PROGRAMS: usize = 421;

pub const RELATIONS: usize = 422;

pub const KEYS: usize = 423;

// The words of a state: all arrays and counts.
pub const WORDS: usize = 424;

// The parts of a block, as the words of open parts tell them: a loop's body, the first and the second arm of a branch.
pub const LOOP: u64 = 0;

pub const FIRST_ARM: u64 = 1;

pub const SECOND_ARM: u64 = 2;

// The bounds of the rules: of the text so many relations, keys and programs;
pub const MOST_RELATIONS: u64 = 32;

pub const MOST_KEYS: u64 = 32;

pub const MOST_PROGRAMS: u64 = 16;

// of a program so many statements, statement and flow lines and links, and blocks so deep.
pub const MOST_STATEMENTS: u64 = 32;

pub const MOST_BODY: u64 = 64;

pub const MOST_LINKS: u64 = 32;

pub const MOST_DEPTH: u64 = 8;

// A cell of the array that begins at a word, of any words: an array has 32 cells, and past the words a cell is 0.
fn cell_in(words: &[u64], from: usize, i: u64) -> u64
    ensures { result ≡ cell_of (array_in words.now from) i }
{
    let at = (i % 32) as usize;
    let n = words.len();
    if from < n {
        if at < n - from {
            return words[from + at];
        }
    }
    0
}

// A cell of the array that begins at a word of the state. With the place of an array both tests are known to pass.
pub fn cell(words: &[u64; WORDS], from: usize, i: u64) -> u64
    ensures { result ≡ cell_of (array_in words.now from) i }
{
    cell_in(words, from, i)
}

// Only what is looked at before the first line is set.
fn start_in(words: &mut [u64])
    requires { 424 ≤ length words.old }
    ensures { words.new ≡ started_in words.old }
{
    words[OPEN_PLACES] = 0;
    words[OPEN_PARTS] = 0;
    words[OPEN_LOOPS] = 0;
    words[OPEN_FIRSTS] = 0;
    words[OPEN_SECONDS] = 0;
    words[BODY] = 0;
    words[LINKS] = 0;
    words[DEPTH] = 0;
    words[STATEMENTS] = 0;
    words[LINES] = 0;
    words[PROGRAMS] = 0;
    words[RELATIONS] = 0;
    words[KEYS] = 0;
}

// No line taken yet; the words may hold anything. That there are as many as the type says is told, since a caller that has the words behind a
// reference cannot know it.
pub fn start(words: &mut [u64; WORDS])
    ensures { (words.new ≡ started_in words.old) × (length words.old ≡ 424) }
{
    start_in(words);
}
