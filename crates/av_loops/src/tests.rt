mod desk_side;
mod gate_side;
mod meeting;
mod together;
