// What the place of an undefined verdict names, which is one word: the node and PLACE_STEP times the step.
ghost use Rattle.std.specs.Prelude.{◌≡◌, ◌/◌, ◌%◌, ◌≤◌, ◌<◌, length};
ghost use Rattle.memory.specs.Map as memory;
ghost use Rattle.sheet.specs.Sizes.{least_words, most_nodes};
ghost use Rattle.nodes.specs.Nodes.{word};

use rules::typed::line_of;

// The line of the node at which undefined arose.
pub fn place_line(w1: &[u64], place: u64) -> u64
    requires { (place % memory.place_step < most_nodes) × (least_words ≤ length w1.now) }
    ensures { result ≡ word w1.now (place % memory.place_step) 7 }
{
    line_of(w1, place % memory::PLACE_STEP)
}

// The step at which that node began.
pub fn place_step(place: u64) -> u64
    ensures { result ≡ place / memory.place_step }
{
    place / memory::PLACE_STEP
}
