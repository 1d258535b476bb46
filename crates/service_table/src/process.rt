// The processes that there are.
//
// An event is handed a number, any from 0 to 255, and refuses one that is no process's. Behind its check, and for a sleeper or
// in a walk from 1 to 8, the number is a process.
ghost use Rattle.service_table.specs.Numbered.{IsProcess};

// A process, by its number: 1 to 8.
#[derive(Clone, Copy)]
pub struct Process {
    pub number: u8,
    pub ghost there_is: { IsProcess number },
}
