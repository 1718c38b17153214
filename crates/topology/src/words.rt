// The words of the nodes. Past the end of the slice a word is 0, and a store does nothing; word numbers are taken modulo WORDS. C lends
// them, so a link is a number there. Functions of their own, as processor/words.rt says.
ghost use Rattle.std.specs.Prelude.{◌≡◌};
ghost use Rattle.topology.specs.Words.{word, put_word};

pub const WORDS: usize = 32;

// The words of one node.
pub type NodeWords = [u64; WORDS];

#[tactic(auto, using(crate::specs::Words::word_out), unfolding(crate::specs::Words::word))]
pub fn word(nodes: &[NodeWords], n: u64, w: usize) -> u64
    ensures { result ≡ word nodes.now n w }
{
    nodes.get(n as usize).map_or(0, |row| row[w % WORDS])
}

#[tactic(auto, using(crate::specs::Words::put_out), unfolding(crate::specs::Words::put_word))]
pub fn put_word(nodes: &mut [NodeWords], n: u64, w: usize, v: u64)
    ensures { nodes.new ≡ put_word nodes.old n w v }
{
    // The length is asked, since `get_mut` does not say what the slice becomes.
    let i = n as usize;
    if i < nodes.len() {
        nodes[i][w % WORDS] = v;
    }
}
