// Runs the script on standard input as desk_session does, with three kinds more: kind 11 is a sheet, which is made into a plate, kind 12 a
// plate, which is read, and kind 13 a sheet and a rank list, with which it is made into a plate.
#![tactic(auto)]

use script::Kinds;

fn main(rt: HostRuntime) {
    session::run(&rt, &mut rt.stdin(), Kinds::All);
}
