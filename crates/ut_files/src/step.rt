// What a utility does next.
use rk_base::Bytes;

/// What a utility does next: it tells a line of error text, or does a task.
#[derive(Drop)]
pub enum WorkItem<T> {
    Tell(Bytes),
    Do(T),
}
