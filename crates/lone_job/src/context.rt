// The context of a run.
use checked::Checked;
use exchange_model::Exchange;
use machine_code::Code;
use store_layout::Layout;

/// The context of a run: an exchange with its layout, its code and the summaries kept of its
/// certificate, and the most jobs that may run at a time.
#[derive(Clone, Copy)]
pub struct RunContext<'a> {
    pub exchange: &'a Exchange,
    pub layout: &'a Layout,
    pub code: &'a Code,
    pub checked: &'a Checked,
    pub workers: u32,
}
