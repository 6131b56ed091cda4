// A rack whose transfers take given times.
#[derive(Drop)]
pub struct Timed<T, R> {
    pub(crate) times: T,
    pub(crate) rack: R,
}
