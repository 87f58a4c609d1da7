// Runs the script on standard input on a fresh desk and writes a line for each call. Kind 1 loads a sheet, kind 2 marks a
// list, kind 3 loads a sheet with a rank list.
#![tactic(auto)]

use script::Kinds;

fn main(rt: HostRuntime) {
    session::run(&rt, &mut rt.stdin(), Kinds::Desk);
}
