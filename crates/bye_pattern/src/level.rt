/// How much the conditions of a class may say: at the second level kind tests are among them.
#[derive(Debug, Drop)]
pub enum Level {
    One,
    Two,
}
