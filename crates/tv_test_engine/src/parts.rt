//! Rows of stages of focus, of embeddings and of blur.

mod blur;
mod embed;
mod focus;
mod limits;
mod shown;
