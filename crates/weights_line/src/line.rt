// A line taken apart into its three numbers.
ghost use Rattle.std.specs.Prelude.{◌≡◌, Some};
ghost use Rattle.weights_line.specs.Rules.{line_of, counts_of};

// How many members two sets share and how many they have together, and a depth.
#[derive(Clone, Copy, Debug, PartialEq, Eq)]
pub struct Counts {
    pub shared: u32,
    pub joined: u32,
    pub depth: u64,
}

const MOST_BYTES: usize = 80;

const MOST_JOINED: u64 = 544;

// The three counts of a line, its newline not among its bytes.
pub fn parse(line: &[u8]) -> Option<Counts>
    ensures { result ≡ line_of line.now }
{
    if MOST_BYTES < line.len() {
        return None;
    }
    // not by `split`, so that a line of one or two words is refused before a number is read
    let first = line.iter().position(|byte| *byte == b' ')?;
    let rest = &line[first + 1..];
    let second = rest.iter().position(|byte| *byte == b' ')?;
    let shared = text::read_number(&line[..first])?;
    let joined = text::read_number(&rest[..second])?;
    let depth = text::read_number(&rest[second + 1..])?;
    checked(shared, joined, depth)
}

// Three numbers as counts, where they can be those of two sets.
#[tactic(auto, unfolding(crate::specs::Rules::counts_of))]
fn checked(shared: u64, joined: u64, depth: u64) -> Option<Counts>
    ensures { result ≡ counts_of (Some shared) (Some joined) (Some depth) }
{
    if shared <= joined && joined <= MOST_JOINED {
        Some(Counts {
            shared: shared as u32,
            joined: joined as u32,
            depth,
        })
    } else {
        None
    }
}
