// The slots that there are.
//
// A set lives in one of four. An identifier names one by its remainder, and create is told one that is free.
ghost use Rattle.service_table.specs.Numbered.{IsSlot};

// A slot, by its index: 0 to 3.
#[derive(Clone, Copy)]
pub struct Slot {
    pub index: usize,
    pub ghost there_is: { IsSlot index },
}
