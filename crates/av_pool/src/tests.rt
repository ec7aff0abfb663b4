mod calls;
mod many;
mod meeting;
mod refusals;
mod threads;
