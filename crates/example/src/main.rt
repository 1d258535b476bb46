// How a program uses the service: it holds a host, its adjustments and a list for the wakings, and lends them to each event.
//
// Two predictors share semaphore 0 of a set. The first wants it while it is taken and sleeps; the second gives it back, and
// the first is woken. That each check below holds is proved from the events' promises alone.
#![tactic(auto)]

use model::{Engine, MODE_MAX, WAKING_BYTES};
use service::{create, operate};

// The file descriptor of standard output.
const STANDARD_OUTPUT: i32 = 1;

fn main() {
    let take = [0u8, 0, 255, 255, 0, 0];
    let give = [0u8, 0, 1, 0, 0, 0];
    let mut host = host::fresh();
    let mut adjustments = host::no_adjustments();
    let mut wakings = [0u8; WAKING_BYTES];
    create(&mut host, &mut adjustments, &mut wakings, 1, 1, MODE_MAX);
    let asleep = operate(
        &mut host,
        &mut adjustments,
        &mut wakings,
        Engine::Quick,
        1,
        0,
        None,
        &take,
    );
    check::expect(asleep.looks == 0);
    let given = operate(
        &mut host,
        &mut adjustments,
        &mut wakings,
        Engine::Quick,
        2,
        0,
        None,
        &give,
    );
    check::expect(given.woken == 1);
    check::expect(given.looks == 1);
    io::print_decimal(STANDARD_OUTPUT, given.woken as u64);
    io::write_all(STANDARD_OUTPUT, b" woken\n");
}
