// What it is to take the records of a recording, one after the other, through a knowledge: what such a walk leaves, and what stays the same while code
// walks. The code of the walks stands above, for each family.
#![tactic(auto)]

use recording::Stop;

// How a walk ended, and the knowledge after all events before that.
#[derive(Clone, Copy)]
pub struct Walked<K> {
    pub ending: Result<(), Stop>,
    pub k: K,
}
