//! Tests of the crates of the disk and the outside, of sharing among threads, of the delivery loop and of the program's lines.
#![tactic(auto)]

#[cfg(test)]
mod ledger;
#[cfg(test)]
mod rows;
#[cfg(test)]
mod test_bus_host;
#[cfg(test)]
mod test_courier_run;
#[cfg(test)]
mod test_door_workers;
#[cfg(test)]
mod test_http_target;
#[cfg(test)]
mod test_memory_disk;
#[cfg(test)]
mod test_program_lines;
#[cfg(test)]
mod test_router_disk;
#[cfg(test)]
mod test_shared_door;
#[cfg(test)]
mod test_tcp_connections;
#[cfg(test)]
mod test_tcp_host;
#[cfg(test)]
mod test_turn_book;
