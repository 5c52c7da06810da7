// The head of a lamp or a node (specs/Heads.antt).
ghost use Rattle.std.specs.Prelude.{◌≡◌};
ghost use Rattle.words.specs.Heads.{kind_of, handle_of};

// Which kind of lamp or node it is: the upper two bits.
pub fn kind_of(head: u32) -> u32
    ensures { result ≡ kind_of head }
{
    head / 0x4000_0000
}

// What stands below them: a handle, or a node's left child.
pub fn handle_of(head: u32) -> u32
    ensures { result ≡ handle_of head }
{
    head % 0x4000_0000
}
