// A lamp list to its bounds block; all of it is in list_to_block.
#![tactic(auto)]

fn main() {
    list_to_block::lamps_to_block();
}
