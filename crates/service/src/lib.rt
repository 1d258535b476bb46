// The service: eleven events over a host that the caller holds and lends, and a whole set shown at once.
//
// An event is lent the host's row of bytes and its undo adjustments, and a list for the wakings; it tells its code, its
// value, its looks, and how many it woke. Its promise is one equation with the event's definition in the crate model,
// refusals included: of the host after it, the list, and what it tells, for every host that is fresh or came back from an
// event. Create, remove, signal, query, read all, the clock and act as wake nobody by a rule; operate, set value, set all and exit go by the
// engine they are handed. `run` does any of them. `query_set` shows what a query of each semaphore of a set would, by one walk over its
// sleepers; the event read all has its numbers from it.
//
// Row, adjustments and list stand apart in every signature, and the premise `Held` in every contract, with no struct that holds them:
// C lends them apart, as `vairolent_create_in` does.
#![tactic(auto)]

mod events;
mod waiting;
mod whole_set;

ghost use Rattle.std.specs.Prelude.{◌≡◌};
ghost use Rattle.model.specs.Waking.{waker};
ghost use Rattle.model.specs.Events.{event as event_in, event_of};
ghost use Rattle.host.specs.Holding.{Held, host_in, state_in};
ghost use Rattle.service.specs.After.{replied_in, replied_of, numbers_after};

pub use events::act_as::act_as;
pub use events::clock::clock;
pub use events::create::create;
pub use events::exit::exit;
pub use events::operate::operate;
pub use events::query::query;
pub use events::read_all::read_all;
pub use events::remove::remove;
pub use events::set_all::set_all;
pub use events::set_value::set_value;
pub use events::signal::signal;
use host::HOST_BYTES;
use model::{ALL_ADJUSTMENTS, ALL_READ, Engine, Event, Reply, WAKING_BYTES};
use wakings::clear;
pub use whole_set::query_set;

// Any event, told apart once. The bytes of an operate's operations, or of a setting's values, stand beside it; the numbers that a
// reading shows go to what is lent for them.
pub fn run(
    host: &mut [u8; HOST_BYTES],
    adjustments: &mut [i16; ALL_ADJUSTMENTS],
    list: &mut [u8; WAKING_BYTES],
    numbers: &mut [u32; ALL_READ],
    engine: Engine,
    event: Event,
    bytes: &[u8],
) -> Reply
    requires { Held (host_in host.old adjustments.old) }
    ensures result_after { replied_in host.new adjustments.new list.new numbers.new result ≡ replied_of (event_of event bytes.now) (event_in (waker engine) (state_in (host_in host.old adjustments.old)) (event_of event bytes.now)) }
    ensures numbers_after { numbers.new ≡ numbers_after numbers.old (event_of event bytes.now) (event_in (waker engine) (state_in (host_in host.old adjustments.old)) (event_of event bytes.now)) }
{
    match event {
        Event::Create {
            process,
            count,
            mode,
        } => Reply::Told(create(host, adjustments, list, process, count, mode)),
        Event::Operate {
            process,
            identifier,
            wait,
        } => Reply::Told(operate(
            host,
            adjustments,
            list,
            engine,
            process,
            identifier,
            wait,
            bytes,
        )),
        Event::SetValue {
            process,
            identifier,
            number,
            value,
        } => Reply::Told(set_value(
            host,
            adjustments,
            list,
            engine,
            process,
            identifier,
            number,
            value,
        )),
        Event::Remove {
            process,
            identifier,
        } => { Reply::Told(remove(host, adjustments, list, process, identifier)) }
        Event::Signal { process } => Reply::Told(signal(host, adjustments, list, process)),
        Event::Exit { process } => Reply::Told(exit(host, adjustments, list, engine, process)),
        Event::Query {
            process,
            identifier,
            number,
        } => {
            clear(list);
            Reply::Seen(query(&*host, &*adjustments, process, identifier, number))
        }
        Event::SetAll {
            process,
            identifier,
        } => { Reply::Told(set_all(host, adjustments, list, engine, process, identifier, bytes)) }
        Event::ReadAll {
            process,
            identifier,
        } => {
            clear(list);
            Reply::Read(read_all(&*host, &*adjustments, numbers, process, identifier))
        }
        Event::Clock { time } => Reply::Told(clock(host, adjustments, list, time)),
        Event::ActAs {
            process,
            user,
            group,
        } => Reply::Told(act_as(host, adjustments, list, process, user, group)),
    }
}
