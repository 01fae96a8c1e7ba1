// A call that makes an order grow, kept as a value.
#[derive(Clone, Copy, PartialEq, Eq, Debug)]
pub enum Call {
    Fork(u16),
    Meet(u16, u16),
}
