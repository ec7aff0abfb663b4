mod course;
mod refused;
mod rows;
