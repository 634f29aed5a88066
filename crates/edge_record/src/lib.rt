// An edge as the code and its callers hold it; which edge of the rules it stands for is in specs/.
#![tactic(auto)]

// An edge: node and place left, node and place entered, how many attributes its sets share and the lowest of them, flow and letter.
// Numbers only, so that a caller in another language can own a list of edges: flow is b'f' or b'b', letter b'A' to b'E'.
#[repr(C)]
#[derive(Clone, Copy, Debug, PartialEq, Eq)]
pub struct Edge {
    pub node: u64,
    pub leaves: u64,
    pub into: u64,
    pub enters: u64,
    pub sharing: u32,
    pub lowest: u32,
    pub flow: u8,
    pub letter: u8,
}
