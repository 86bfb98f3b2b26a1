// What a token is written from.
use digest::Digest;
use tree::Link;

#[derive(Clone, Copy, Debug, PartialEq, Eq)]
pub struct Fields<'a> {
    pub recorded: Digest,
    pub second: u32,
    pub publication: u32,
    pub round: &'a [Link<Digest>],
    pub calendar: &'a [Link<Digest>],
}
