// Between two blocks of a stream: what tells the last block.
ghost use Rattle.std.specs.Prelude.{◌≡◌, nat_le};

// Is the block the last, of which n bytes are there after a read behind the first `left`? A read that adds none is the end of the input.
pub fn is_last(left: usize, n: usize) -> bool
    ensures { result ≡ nat_le n left }
{
    n <= left
}
