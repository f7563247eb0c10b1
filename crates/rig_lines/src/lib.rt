// What the commands of rig share: lines of input and output, files by name, numbers, and refusals in words.
#![tactic(auto)]

pub mod arguments; // arguments.rt: words of the command line
pub mod console; // console.rt: text on the page of output
pub mod files; // files.rt: files by name
pub mod following; // following.rt: a source followed line by line
pub mod input; // input.rt: lines of input
pub mod lists; // lists.rt: words in a list
pub mod numbers; // numbers.rt: numbers that a text says
pub mod options; // options.rt: options on a command line
pub mod parts; // parts.rt: how much of a slice to lend
pub mod refusals; // refusals.rt: refusals in words
pub mod store; // store.rt: numbers kept in a lent slice
