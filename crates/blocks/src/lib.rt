// Between two blocks of an input: the bytes that a block left over go to its front.
#![tactic(auto)]

ghost use Rattle.std.specs.Prelude.{◌≡◌};
ghost use Rattle.blocks.specs.Block.{kept_count, kept_bytes};

// The bytes from `from` to below n go to the front; answers how many. n stands beside the input, since any n is answered: none are kept where it is past the end.
#[tactic(auto, unfolding(crate::specs::Block::kept_count, crate::specs::Block::kept_bytes))]
pub fn keep(input: &mut [u8], from: usize, n: usize) -> usize
    ensures { (result ≡ kept_count input.old from n) × (input.new ≡ kept_bytes input.old from n) }
{
    if input.len() < n || n <= from {
        return 0;
    }
    input.copy_within(from..n, 0);
    n - from
}
