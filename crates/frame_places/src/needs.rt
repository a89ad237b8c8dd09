// The calls between frames, by numbers: the least needs, and recursion.
pub(crate) mod least;
pub(crate) mod ranks;
pub(crate) mod reach;
pub(crate) mod row;
