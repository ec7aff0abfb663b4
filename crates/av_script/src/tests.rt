mod port_rows;
mod ports;
mod refused;
mod rows;
mod scripts;
mod world;
