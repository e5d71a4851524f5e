mod copies;
mod equality;
mod parts;
mod samples;
mod sums;
