mod calls;
mod refusals;
mod rows;
mod said;
mod threads;
