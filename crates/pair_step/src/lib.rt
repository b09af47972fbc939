// No function: this crate states what holds between the source's tree and the chip's tree from call to call, and what follows for lists of calls. It
// rests on the contracts of the queue tree. The theorems about the search, the translator and the opening of both trees rest on it.
#![tactic(auto)]
