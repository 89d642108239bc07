// What a run answers, for those who print it as much as for those who run.
use words::pointer::Pointer;

// The count is that of the completed steps.
#[derive(Clone, Copy)]
pub enum Reply {
    Refused(u8),
    Spent(u32),
    Halted(u32),
    Fault(u8, u32, Pointer),
}
