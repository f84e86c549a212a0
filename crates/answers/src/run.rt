// What a run has of its image from its start to its end.
use image::Header;
use refusal::Refusal;

// An image, its index, and its counts or why it is refused. That they belong together (`IsHad`) is a `requires` of each function.
#[derive(Clone, Copy)]
pub struct Run<'a> {
    pub image: &'a [u8],
    pub index: &'a [u8],
    pub prepared: Result<Header, Refusal>,
}
